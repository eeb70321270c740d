// Refusals and document 01's numbers.
#![tactic(auto)]

ghost use Rattle.std.specs.Prelude.{◌≡◌};
ghost use Rattle.refusals.specs.Refusals.{number as number_of, earlier as earlier_of};

// Why something is refused (document 01, "Questions at the door"; from Implied on document 02).
#[derive(Clone, Copy, PartialEq, Eq, PartialOrd, Ord)]
pub enum Refusal {
    IllFormedLedger,
    NotAFormula,
    TooManyNodes,
    LargeDimension,
    LargeResult,
    ShortOutput,
    FullLedger,
    NotBelow,
    NotImplied,
    DoesNotFollow,
    NotAccepted,
    Implied,
    BeyondProducer,
}

// Document 01's number of a refusal.
pub fn number(r: Refusal) -> usize
    ensures { result ≡ number_of r }
{
    match r {
        Refusal::IllFormedLedger => 1,
        Refusal::NotAFormula => 2,
        Refusal::TooManyNodes => 3,
        Refusal::LargeDimension => 4,
        Refusal::LargeResult => 5,
        Refusal::ShortOutput => 6,
        Refusal::FullLedger => 7,
        Refusal::NotBelow => 8,
        Refusal::NotImplied => 9,
        Refusal::DoesNotFollow => 10,
        Refusal::NotAccepted => 11,
        Refusal::Implied => 12,
        Refusal::BeyondProducer => 13,
    }
}

// The one with the lower number: of two questions answered no the first decides.
pub fn earlier(e: Refusal, q: Refusal) -> Refusal
    ensures { result ≡ earlier_of e q }
{
    e.min(q)
}
