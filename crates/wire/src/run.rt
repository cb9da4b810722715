// Things of one kind in bytes, one after the other: keys, claims.
ghost use Rattle.std.specs.Prelude.{ℕ, ◌≡◌, ◌+◌, ◌*◌, ◌≤◌, length, drop};
ghost use Rattle.keys.specs.Place.{put_at};
ghost use Rattle.wire.specs.Run.{Layout, read_run, write_run};

// A thing that lies in so many bytes, read from and written to a place of a slice: how, its layout says.
pub(crate) trait Laid: Copy {
    const SIZE: usize;

    ghost SIZE: { ℕ };

    ghost layout: { Layout Self };

    fn read(s: &[u8], at: usize) -> Self
        requires { at + layout.size ≤ length s.now }
        ensures { result ≡ layout.read (drop at s.now) };

    fn write(self, out: &mut [u8], at: usize)
        requires { at + layout.size ≤ length out.old }
        ensures { out.new ≡ put_at out.old at (layout.write self) };

    // The layout's size is the code's, and what is written of a thing is as long.
    ghost sized: { layout.size ≡ SIZE };

    ghost long: { (x : Self) → length (layout.write x) ≡ layout.size };
}

// As many things as there are places for, from a place on.
pub(crate) fn read_run<T: Laid>(s: &[u8], at: usize, things: &mut [T])
    requires { at + T.layout.size * length things.old ≤ length s.now }
    ensures { things.new ≡ read_run T.layout (length things.old) (drop at s.now) }
{
    for (i, thing) in things.iter_mut().enumerate() {
        *thing = T::read(s, at + T::SIZE * i);
    }
}

// All the things, written from a place on.
pub(crate) fn write_run<T: Laid>(out: &mut [u8], at: usize, things: &[T])
    requires { at + T.layout.size * length things.now ≤ length out.old }
    ensures { out.new ≡ put_at out.old at (write_run T.layout things.now) }
{
    for (i, thing) in things.iter().enumerate() {
        thing.write(out, at + T::SIZE * i);
    }
}
