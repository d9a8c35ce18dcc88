ghost use Rattle.std.specs.Prelude.{◌≤◌, length};

mod cutting;

// What is left of a text's words.
#[derive(Clone, Copy)]
pub struct Words<'a> {
    text: &'a [u8],
    at: usize,
    ghost within: { at ≤ length text.now },
}
