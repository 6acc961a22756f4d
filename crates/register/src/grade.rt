// The grades, and how many rounds each needs.
ghost use Rattle.std.specs.Prelude.{◌≡◌};
ghost use Rattle.register_rules.specs.Verdict.{least, enough};
ghost use Rattle.register.specs.Grades.{grade_number, Numbers};

// A grade by document 01's number.
#[derive(Clone, Copy, PartialEq, Eq)]
pub enum Grade {
    Inspector = 1,
    Keeper = 2,
}

// A number that is no grade's.
#[derive(Clone, Copy, PartialEq, Eq)]
pub struct UnknownGrade(pub usize);

impl TryFrom<usize> for Grade {
    type Error = UnknownGrade;

    ghost try_from_gives = { Numbers };

    fn try_from(number: usize) -> Result<Self, UnknownGrade> {
        match number {
            1 => Ok(Grade::Inspector),
            2 => Ok(Grade::Keeper),
            _ => Err(UnknownGrade(number)),
        }
    }
}

impl Grade {
    // The least rounds that suffice.
    fn least(self) -> usize
        ensures { result ≡ least (grade_number self) }
    {
        match self {
            Grade::Inspector => 20,
            Grade::Keeper => 31,
        }
    }
}

// Whether there is such a grade and the rounds suffice for it.
pub fn enough(grade: usize, rounds: usize) -> bool
    ensures { result ≡ enough grade rounds }
{
    Grade::try_from(grade).is_ok_and(|known| known.least() <= rounds)
}
