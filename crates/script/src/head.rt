// The first line of a history: how many lines each sheet has, four columns for each. The coordinator sheet's is without its head.
ghost use Rattle.std.specs.Prelude.{◌≤◌, IfSome, All};

// The figures of N sheets, if the first line is good.
pub fn read<const N: usize>(input: &[u8]) -> Option<[usize; N]>
    ensures { IfSome result (All (λ lines. lines ≤ 9999)) }
{
    let mut rest = input;
    let mut lines = [0; N];
    for i in 0..N {
        let (field, after) = rest.split_at_checked(4)?;
        let v = decimal::read(field, 0, 9999)?;
        lines[i] = v as usize;
        rest = after;
    }
    if rest.first() == Some(&b'\n') {
        return Some(lines);
    }
    None
}
