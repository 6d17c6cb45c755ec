// The hash: its published vectors, and the length of a command's text.
use machine::{command_len, fnv1a};

#[test]
fn published_vectors(rt: HostRuntime) {
    assert_eq!(rt; fnv1a(b""), 2_166_136_261);
    assert_eq!(rt; fnv1a(b"a"), 0xe40c_292c);
    assert_eq!(rt; fnv1a(b"foobar"), 0xbf9c_f968);
}

#[test]
fn text_ends_at_byte_0(rt: HostRuntime) {
    assert_eq!(rt; command_len(b"sum"), 3);
    assert_eq!(rt; command_len(b"sum\0raw\0"), 3);
    assert_eq!(rt; command_len(b"\0sum"), 0);
    assert_eq!(rt; command_len(b""), 0);
}
