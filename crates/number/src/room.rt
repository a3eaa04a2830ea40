// The room that a lent buffer has.
ghost use Rattle.std.specs.Prelude.{◌≡◌, ◌+◌, ◌<◌, ◌≤◌, length, IfOk, IfErr};
ghost use Rattle.base.specs.declared.Refusal.{Refusal};

use base::Refusal;

// The place behind so many bytes at a place of a buffer: 20 where it has no room for them.
pub fn end_of(out: &[u8], at: usize, n: usize) -> Result<usize, Refusal>
    ensures fits { IfOk result (λ end. (end ≡ at + n) × (end ≤ length out.now)) }
    ensures full { IfErr result (λ e. (e ≡ Refusal.NoRoom) × (length out.now < at + n)) }
{
    match at.checked_add(n) {
        Some(end) if end <= out.len() => Ok(end),
        _ => Err(Refusal::NoRoom),
    }
}
