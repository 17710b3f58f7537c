ghost use Rattle.std.specs.Prelude.{◌≤◌, length};

mod methods;

/// Elements are appended and read, never changed or taken back; the first `used` places of the slice hold them in order.
// A lent slice and a count, and no `Vec`: nothing is allocated, the caller decides where memory is.
#[derive(Drop)]
pub struct Journal<'a, T> {
    slots: &'a mut [T],
    used: usize,
    ghost within: { used ≤ length slots.now },
}
