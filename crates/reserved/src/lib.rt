// A list whose memory is reserved when it is made: it holds up to N elements, and nothing is allocated after that.
#![tactic(auto)]

ghost use Rattle.std.specs.Prelude.{◌≤◌, vec_len, vec_capacity};

pub mod buffer;
mod calls;

#[derive(Drop)]
pub struct Reserved<T, const N: usize> {
    list: Vec<T>,
    ghost room: { N ≤ vec_capacity list },
    ghost few: { vec_len list ≤ N },
}
