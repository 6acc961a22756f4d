// Outputs. Bytes are copied one by one, which compiled code does by memcpy: copy_from_slice would have the archive ask its host for memmove too.
ghost use Rattle.std.specs.Prelude.{◌≡◌, ◌+◌, ◌≤◌, length};
ghost use Rattle.algebra.specs.Lists.{over, over_at};

// Writes the list over the front of out.
pub fn copy_into(list: &[u8], out: &mut [u8])
    requires { length list.now ≤ length out.old }
    ensures { out.new ≡ over list.now out.old }
{
    for (j, x) in list.iter().enumerate() {
        out[j] = *x;
    }
}

// Writes the list over out from the place `at` on.
pub fn copy_at(list: &[u8], at: usize, out: &mut [u8])
    requires { at + length list.now ≤ length out.old }
    ensures { out.new ≡ over_at list.now at out.old }
{
    copy_into(list, &mut out[at..]);
}
