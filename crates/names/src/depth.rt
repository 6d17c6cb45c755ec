// The depth of a pool: a decimal number from 1 to 64 with no leading zero.
ghost use Rattle.std.specs.Prelude.{◌≡◌};
ghost use Rattle.names.specs.Depth.{depth_of};

// The depth that a text says.
pub fn depth_of(text: &[u8]) -> Option<usize>
    ensures { result ≡ depth_of text.now }
{
    let depth = match text {
        [a @ b'1'..=b'9'] => usize::from(a - b'0'),
        [a @ b'1'..=b'9', b @ b'0'..=b'9'] => 10 * usize::from(a - b'0') + usize::from(b - b'0'),
        _ => return None,
    };
    (depth <= 64).then_some(depth)
}
