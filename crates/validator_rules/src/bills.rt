// The bills taken in.

// A number of bills taken in. Notes paid out are another type, so that no sum can mix the two.
#[derive(Clone, Copy)]
pub struct Bills(pub u32);
