//! Forms: words and lists of forms.

use krml_trace::Seq;

/// A form of a text: an atom, which is a run of letters, digits, `_` and `'`, or a list of forms between parentheses.
#[derive(Drop)]
pub enum Form {
    Atom(Seq<u8>),
    List(Seq<Form>),
}
