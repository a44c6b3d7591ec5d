//! Does an order list each operation once?

ghost use Rattle.std.specs.Prelude.{◌≡◌, ◌==◌, ◌&&◌, length};
ghost use Rattle.std.specs.List.{list_all};
ghost use Rattle.fs_model.specs.Numbers.{has_number, numbers_below};

fn are_all_true(flags: &[bool]) -> bool
    ensures { result ≡ list_all (λ flag. flag) flags.now }
{
    flags.iter().all(|flag| *flag)
}

/// Does the order list each number below `count` once, and nothing else? Those are the numbers of the harts'
/// operations.
pub fn lists_each_once(count: usize, order: &[u8]) -> bool
    ensures { result ≡ ((length order.now == count) && list_all (has_number order.now) (numbers_below count)) }
{
    if order.len() != count {
        return false;
    }
    if count > 256 {
        return false;
    }
    let mut is_listed = [false; 256];
    for a in order {
        is_listed[*a as usize] = true;
    }
    are_all_true(&is_listed[..count])
}
