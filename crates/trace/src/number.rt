// Numbers in a trace are big-endian: the first byte weighs most.
ghost use Rattle.std.specs.Prelude.{◌≡◌, ◌^◌, ◌<◌, ◌≤◌, length, IfSome, if◌then◌else◌, Some, None, nat_le};
ghost use Rattle.trace.specs.Big.{big};

// The number that the bytes spell, or nothing where there are more bytes than eight.
pub fn number(bytes: &[u8]) -> Option<u64>
    ensures value { result ≡ (if nat_le (length bytes.now) 8 then Some (big bytes.now) else None) }
    ensures bound { IfSome result (λ n. n < 256 ^ length bytes.now) }
{
    if bytes.len() > 8 {
        return None;
    }
    Some(bytes.iter().fold(0, |n, b| n * 256 + u64::from(*b)))
}
