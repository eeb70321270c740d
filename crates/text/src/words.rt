// The words of texts.
ghost use Rattle.std.specs.Prelude.{◌≡◌, map};
ghost use Rattle.formula.specs.Answers.{same_bytes};
ghost use Rattle.text.specs.Words.{first_kind, names, kind_named, zero_word, succ-word, entails-word};

use formula::Sort;

// The first kind byte of a sort.
pub fn first_kind(sort: Sort) -> u8
    ensures { result ≡ first_kind sort }
{
    match sort {
        Sort::Faces => 0,
        Sort::Intervals => 16,
    }
}

// The names of the nodes of a sort, in the order of their kind bytes.
pub fn names(sort: Sort) -> [&'static [u8]; 6]
    ensures { map (λ x. x.now) result ≡ names sort }
{
    match sort {
        Sort::Faces => [b"ff", b"ft", b"at0", b"at1", b"fand", b"for"],
        Sort::Intervals => [b"i0", b"i1", b"dim", b"neg", b"meet", b"join"],
    }
}

// The kind byte that a word names in a sort.
pub(crate) fn kind_named(sort: Sort, w: &[u8]) -> Option<u8>
    ensures { result ≡ kind_named sort w.now }
{
    let place = names(sort).iter().position(|name| *name == w)?;
    Some(first_kind(sort) + place as u8)
}

// Whether a word is z.
pub(crate) fn is_zero(w: &[u8]) -> bool
    ensures { result ≡ same_bytes zero_word w.now }
{
    w == b"z".as_slice()
}

// Whether a word is s.
pub(crate) fn is_succ(w: &[u8]) -> bool
    ensures { result ≡ same_bytes succ-word w.now }
{
    w == b"s".as_slice()
}

// Whether a word is entails.
pub(crate) fn is_entails(w: &[u8]) -> bool
    ensures { result ≡ same_bytes entails-word w.now }
{
    w == b"entails".as_slice()
}
