// A run of bytes as it is, and whether there is room for one. Room is asked by a difference: a place and a length could be more than a number holds.
ghost use Rattle.std.specs.Prelude.{◌≡◌, ◌+◌, leb, length};
ghost use Rattle.text.specs.Put.{put_from, end_from};

// Whether so many bytes fit at a place.
pub(crate) fn has_room(out: &[u8], at: usize, many: usize) -> bool
    ensures { result ≡ leb (at + many) (length out.now) }
{
    at <= out.len() && many <= out.len() - at
}

// Puts bytes at a place, and says where they end; without room it puts nothing, and says the place.
pub fn put_bytes(out: &mut [u8], at: usize, bytes: &[u8]) -> usize
    ensures { (result ≡ end_from out.old at bytes.now)
        × (out.new ≡ put_from out.old at bytes.now) }
{
    if !has_room(out, at, bytes.len()) {
        return at;
    }
    let end = at + bytes.len();
    out[at..end].copy_from_slice(bytes);
    end
}
