// A label made of bytes, and its bytes.
ghost use Rattle.std.specs.Prelude.{◌≡◌, ◌≤◌, true, false, length, codes, MatchOption, nat_le};
ghost use Rattle.tasks.specs.Limits.{most_label};
ghost use Rattle.tasks.specs.Label.{label_bytes};

use super::{Label, MOST_LABEL};

impl Label {
    // The label of these bytes, which are few enough.
    fn of(text: &[u8]) -> Label
        requires { length text.now ≤ most_label }
        ensures { label_bytes result ≡ text.now }
    {
        let len = text.len();
        let mut bytes = [0; MOST_LABEL];
        bytes[..len].copy_from_slice(text);
        Label { bytes, len }
    }

    // The label of these bytes, unless they are too many.
    pub fn new(text: &[u8]) -> Option<Label>
        ensures { MatchOption result (nat_le (length text.now) most_label ≡ false) (λ l. (nat_le (length text.now) most_label ≡ true) × (label_bytes l ≡ text.now)) }
    {
        (text.len() <= MOST_LABEL).then(|| Label::of(text))
    }

    // The root's label.
    pub fn root() -> Label
        ensures { label_bytes result ≡ codes "root" }
    {
        Label::of(b"root")
    }

    // The label's bytes.
    pub fn as_slice(&self) -> &[u8]
        ensures bytes { result.now ≡ label_bytes self.now }
        ensures short { length result.now ≤ most_label }
    {
        &self.bytes[..self.len]
    }
}
