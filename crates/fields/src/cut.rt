// Cuts bytes in two at the first separator.
ghost use Rattle.std.specs.Option.{option_map};
ghost use Rattle.fields.specs.Parts.{Cut};

// What stands before the first byte `sep`, and what follows it; all and none where there is no such byte.
pub fn cut(bytes: &[u8], sep: u8) -> (&[u8], Option<&[u8]>)
    ensures { Cut sep bytes.now result.0.now (option_map (λ x. x.now) result.1) }
{
    match bytes.iter().position(|byte| *byte == sep) {
        Some(i) => (&bytes[..i], Some(&bytes[i + 1..])),
        None => (bytes, None),
    }
}
