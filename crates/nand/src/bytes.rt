ghost use Rattle.std.specs.Prelude.{◌≡◌};
ghost use Rattle.rules.specs.Bytes.{all255};

// Whether every byte is 255. Each is looked at, so that they can be compared several at a time: for a few bytes, as many as the caller's part has.
pub fn all_255(s: &[u8]) -> bool
    ensures { result ≡ all255 s.now }
{
    let mut all = true;
    for byte in s {
        all &= *byte == 255;
    }
    all
}
