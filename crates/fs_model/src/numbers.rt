//! Numbers of operations in lists.

ghost use Rattle.std.specs.Prelude.{◌≡◌};
ghost use Rattle.fs_model.specs.Numbers.{stands_before};

/// Is a in the list, and b after it? Linear in the list.
pub fn stands_before(listed: &[u8], a: usize, b: usize) -> bool
    ensures { result ≡ stands_before listed.now a b }
{
    let mut is_past = false;
    let mut is_before = false;
    for number in listed {
        let number = usize::from(*number);
        is_before |= is_past & (number == b);
        is_past |= number == a;
    }
    is_before
}
