// The rules of the calculus, a judgement to a line: the conclusion of each rule, then its premises in order. A judgement is its
// predicate and its operands as document 01 prints them; a line has ten items.
#![tactic(auto)]

ghost use Rattle.std.specs.Prelude.{◌≡◌, ◌-◌, ◌≤◌, ◌<◌};
ghost use Rattle.calculus.proofs.Rows.{row_at};
ghost use Rattle.rows.specs.Flattening.{part, lines_in, all_lines, start_at};

// A token: a byte, a number so much above a variable, the bytes in a slot, a context's count with so many faces in front of a variable, no faces left, nothing.
#[derive(Clone, Copy)]
pub enum Token {
    Byte(u8),
    Number(u8, u8),
    Slot(u8),
    Front(u8),
    Done,
    Pad,
}

// What a line is made of: the predicate of a judgement, and tokens inside it.
#[derive(Clone, Copy)]
pub enum Item {
    Claim(u8),
    Inside(Token),
}

// The predicates, each at the head of its judgement.
const LT: Item = Item::Claim(0);

const LE: Item = Item::Claim(1);

const INTERVAL: Item = Item::Claim(2);

const FACE: Item = Item::Claim(3);

const MEMBER: Item = Item::Claim(4);

const TAKE: Item = Item::Claim(5);

const COVER: Item = Item::Claim(6);

const ENTAILS: Item = Item::Claim(7);

const BOUNDARY: Item = Item::Claim(8);

const LOCAL: Item = Item::Claim(9);

const FFORALL: Item = Item::Claim(10);

const ISHIFT: Item = Item::Claim(11);

const ISUBST: Item = Item::Claim(12);

const FSHIFT: Item = Item::Claim(13);

const FSUBST: Item = Item::Claim(14);

// The kind bytes of formulas, which stand there as they are, and the byte of the number zero.
const FF: Item = Item::Inside(Token::Byte(0));

const FT: Item = Item::Inside(Token::Byte(1));

const AT0: Item = Item::Inside(Token::Byte(2));

const AT1: Item = Item::Inside(Token::Byte(3));

const FAND: Item = Item::Inside(Token::Byte(4));

const FOR: Item = Item::Inside(Token::Byte(5));

const I0: Item = Item::Inside(Token::Byte(16));

const I1: Item = Item::Inside(Token::Byte(17));

const DIM: Item = Item::Inside(Token::Byte(18));

const NEG: Item = Item::Inside(Token::Byte(19));

const MEET: Item = Item::Inside(Token::Byte(20));

const JOIN: Item = Item::Inside(Token::Byte(21));

const ZERO: Item = Item::Inside(Token::Byte(0));

// Numbers: variables, and one above them.
const N0: Item = Item::Inside(Token::Number(0, 0));

const N1: Item = Item::Inside(Token::Number(0, 1));

const N2: Item = Item::Inside(Token::Number(0, 2));

const S0: Item = Item::Inside(Token::Number(1, 0));

const S1: Item = Item::Inside(Token::Number(1, 1));

// Variables for faces (F), intervals (R) and the faces of a context (G).
const F0: Item = Item::Inside(Token::Slot(0));

const R0: Item = Item::Inside(Token::Slot(1));

const G0: Item = Item::Inside(Token::Slot(2));

const F1: Item = Item::Inside(Token::Slot(3));

const R1: Item = Item::Inside(Token::Slot(4));

const G1: Item = Item::Inside(Token::Slot(5));

const F2: Item = Item::Inside(Token::Slot(6));

const R2: Item = Item::Inside(Token::Slot(7));

const G2: Item = Item::Inside(Token::Slot(8));

const F3: Item = Item::Inside(Token::Slot(9));

const R3: Item = Item::Inside(Token::Slot(10));

const G3: Item = Item::Inside(Token::Slot(11));

const F4: Item = Item::Inside(Token::Slot(12));

const R4: Item = Item::Inside(Token::Slot(13));

const G4: Item = Item::Inside(Token::Slot(14));

const F5: Item = Item::Inside(Token::Slot(15));

const R5: Item = Item::Inside(Token::Slot(16));

// The count of a context, with so many faces in front of its variable; and that no faces are left.
const IN0: Item = Item::Inside(Token::Front(0));

const IN1: Item = Item::Inside(Token::Front(1));

const IN2: Item = Item::Inside(Token::Front(2));

const NIL: Item = Item::Inside(Token::Done);

// Nothing: behind the last operand.
const __: Item = Item::Inside(Token::Pad);

static LINES: [[Item; 10]; 154] = [
    // lt and le.
    [LT, ZERO, S0, __, __, __, __, __, __, __], // lt.z
    [LT, S0, S1, __, __, __, __, __, __, __], // lt.s
    [LT, N0, N1, __, __, __, __, __, __, __],
    [LE, ZERO, N0, __, __, __, __, __, __, __], // le.z
    [LE, S0, S1, __, __, __, __, __, __, __], // le.s
    [LE, N0, N1, __, __, __, __, __, __, __],
    // interval and face.
    [INTERVAL, N0, I0, __, __, __, __, __, __, __], // interval.0
    [INTERVAL, N0, I1, __, __, __, __, __, __, __], // interval.1
    [INTERVAL, N0, DIM, N1, __, __, __, __, __, __], // interval.dim
    [LT, N1, N0, __, __, __, __, __, __, __],
    [INTERVAL, N0, NEG, R1, __, __, __, __, __, __], // interval.neg
    [INTERVAL, N0, R1, __, __, __, __, __, __, __],
    [INTERVAL, N0, MEET, R1, R2, __, __, __, __, __], // interval.meet
    [INTERVAL, N0, R1, __, __, __, __, __, __, __],
    [INTERVAL, N0, R2, __, __, __, __, __, __, __],
    [INTERVAL, N0, JOIN, R1, R2, __, __, __, __, __], // interval.join
    [INTERVAL, N0, R1, __, __, __, __, __, __, __],
    [INTERVAL, N0, R2, __, __, __, __, __, __, __],
    [FACE, N0, FF, __, __, __, __, __, __, __], // face.ff
    [FACE, N0, FT, __, __, __, __, __, __, __], // face.ft
    [FACE, N0, AT0, N1, __, __, __, __, __, __], // face.0
    [INTERVAL, N0, DIM, N1, __, __, __, __, __, __],
    [FACE, N0, AT1, N1, __, __, __, __, __, __], // face.1
    [INTERVAL, N0, DIM, N1, __, __, __, __, __, __],
    [FACE, N0, FAND, F1, F2, __, __, __, __, __], // face.and
    [FACE, N0, F1, __, __, __, __, __, __, __],
    [FACE, N0, F2, __, __, __, __, __, __, __],
    [FACE, N0, FOR, F1, F2, __, __, __, __, __], // face.or
    [FACE, N0, F1, __, __, __, __, __, __, __],
    [FACE, N0, F2, __, __, __, __, __, __, __],
    // member and take.
    [MEMBER, F0, IN1, F0, G1, __, __, __, __, __], // member.here
    [MEMBER, F0, IN1, F1, G2, __, __, __, __, __], // member.there
    [MEMBER, F0, IN0, G2, __, __, __, __, __, __],
    [TAKE, IN1, F0, G1, F0, IN0, G1, __, __, __], // take.here
    [TAKE, IN1, F0, G1, F2, IN1, F0, G3, __, __], // take.there
    [TAKE, IN0, G1, F2, IN0, G3, __, __, __, __],
    // cover.
    [COVER, IN0, G0, FT, __, __, __, __, __, __], // cover.top
    [COVER, IN0, G0, F1, __, __, __, __, __, __], // cover.hit
    [MEMBER, F1, IN0, G0, __, __, __, __, __, __],
    [COVER, IN0, G0, F1, __, __, __, __, __, __], // cover.absurd
    [MEMBER, FF, IN0, G0, __, __, __, __, __, __],
    [COVER, IN0, G0, F1, __, __, __, __, __, __], // cover.clash
    [MEMBER, AT0, N2, IN0, G0, __, __, __, __, __],
    [MEMBER, AT1, N2, IN0, G0, __, __, __, __, __],
    [COVER, IN0, G0, F1, __, __, __, __, __, __], // cover.and-left
    [TAKE, IN0, G0, FAND, F2, F3, IN0, G4, __, __],
    [COVER, IN2, F2, F3, G4, F1, __, __, __, __],
    [COVER, IN0, G0, F1, __, __, __, __, __, __], // cover.or-left
    [TAKE, IN0, G0, FOR, F2, F3, IN0, G4, __, __],
    [COVER, IN1, F2, G4, F1, __, __, __, __, __],
    [COVER, IN1, F3, G4, F1, __, __, __, __, __],
    [COVER, IN0, G0, FAND, F1, F2, __, __, __, __], // cover.and-right
    [COVER, IN0, G0, F1, __, __, __, __, __, __],
    [COVER, IN0, G0, F2, __, __, __, __, __, __],
    [COVER, IN0, G0, FOR, F1, F2, __, __, __, __], // cover.or-right0
    [COVER, IN0, G0, F1, __, __, __, __, __, __],
    [COVER, IN0, G0, FOR, F1, F2, __, __, __, __], // cover.or-right1
    [COVER, IN0, G0, F2, __, __, __, __, __, __],
    // entails, boundary and local.
    [ENTAILS, N0, F1, F2, __, __, __, __, __, __], // entails.checked
    [FACE, N0, F1, __, __, __, __, __, __, __],
    [FACE, N0, F2, __, __, __, __, __, __, __],
    [COVER, IN1, F1, NIL, F2, __, __, __, __, __],
    [BOUNDARY, I0, FT, FF, __, __, __, __, __, __], // boundary.0
    [BOUNDARY, I1, FF, FT, __, __, __, __, __, __], // boundary.1
    [BOUNDARY, DIM, N0, AT0, N0, AT1, N0, __, __, __], // boundary.dim
    [BOUNDARY, NEG, R0, F1, F2, __, __, __, __, __], // boundary.neg
    [BOUNDARY, R0, F2, F1, __, __, __, __, __, __],
    [BOUNDARY, MEET, R0, R1, FOR, F2, F3, FAND, F4, F5], // boundary.meet
    [BOUNDARY, R0, F2, F4, __, __, __, __, __, __],
    [BOUNDARY, R1, F3, F5, __, __, __, __, __, __],
    [BOUNDARY, JOIN, R0, R1, FAND, F2, F3, FOR, F4, F5], // boundary.join
    [BOUNDARY, R0, F2, F4, __, __, __, __, __, __],
    [BOUNDARY, R1, F3, F5, __, __, __, __, __, __],
    [LOCAL, N0, F1, R2, I0, __, __, __, __, __], // local.0
    [INTERVAL, N0, R2, __, __, __, __, __, __, __],
    [BOUNDARY, R2, F3, F4, __, __, __, __, __, __],
    [ENTAILS, N0, F1, F3, __, __, __, __, __, __],
    [LOCAL, N0, F1, R2, I1, __, __, __, __, __], // local.1
    [INTERVAL, N0, R2, __, __, __, __, __, __, __],
    [BOUNDARY, R2, F3, F4, __, __, __, __, __, __],
    [ENTAILS, N0, F1, F4, __, __, __, __, __, __],
    // fforall.
    [FFORALL, FF, N0, FF, __, __, __, __, __, __], // fforall.ff
    [FFORALL, FT, N0, FT, __, __, __, __, __, __], // fforall.ft
    [FFORALL, AT0, N0, N0, FF, __, __, __, __, __], // fforall.0.hit
    [FFORALL, AT0, N0, N1, AT0, N0, __, __, __, __], // fforall.0.lt
    [LT, N0, N1, __, __, __, __, __, __, __],
    [FFORALL, AT0, S0, N1, AT0, N0, __, __, __, __], // fforall.0.gt
    [LT, N1, S0, __, __, __, __, __, __, __],
    [FFORALL, AT1, N0, N0, FF, __, __, __, __, __], // fforall.1.hit
    [FFORALL, AT1, N0, N1, AT1, N0, __, __, __, __], // fforall.1.lt
    [LT, N0, N1, __, __, __, __, __, __, __],
    [FFORALL, AT1, S0, N1, AT1, N0, __, __, __, __], // fforall.1.gt
    [LT, N1, S0, __, __, __, __, __, __, __],
    [FFORALL, FAND, F0, F1, N2, FAND, F3, F4, __, __], // fforall.and
    [FFORALL, F0, N2, F3, __, __, __, __, __, __],
    [FFORALL, F1, N2, F4, __, __, __, __, __, __],
    [FFORALL, FOR, F0, F1, N2, FOR, F3, F4, __, __], // fforall.or
    [FFORALL, F0, N2, F3, __, __, __, __, __, __],
    [FFORALL, F1, N2, F4, __, __, __, __, __, __],
    // ishift and isubst.
    [ISHIFT, I0, N0, I0, __, __, __, __, __, __], // ishift.0
    [ISHIFT, I1, N0, I1, __, __, __, __, __, __], // ishift.1
    [ISHIFT, DIM, N0, N1, DIM, N0, __, __, __, __], // ishift.dim.lt
    [LT, N0, N1, __, __, __, __, __, __, __],
    [ISHIFT, DIM, N0, N1, DIM, S0, __, __, __, __], // ishift.dim.ge
    [LE, N1, N0, __, __, __, __, __, __, __],
    [ISHIFT, NEG, R0, N1, NEG, R2, __, __, __, __], // ishift.neg
    [ISHIFT, R0, N1, R2, __, __, __, __, __, __],
    [ISHIFT, MEET, R0, R1, N2, MEET, R3, R4, __, __], // ishift.meet
    [ISHIFT, R0, N2, R3, __, __, __, __, __, __],
    [ISHIFT, R1, N2, R4, __, __, __, __, __, __],
    [ISHIFT, JOIN, R0, R1, N2, JOIN, R3, R4, __, __], // ishift.join
    [ISHIFT, R0, N2, R3, __, __, __, __, __, __],
    [ISHIFT, R1, N2, R4, __, __, __, __, __, __],
    [ISUBST, I0, N0, R1, I0, __, __, __, __, __], // isubst.0
    [ISUBST, I1, N0, R1, I1, __, __, __, __, __], // isubst.1
    [ISUBST, DIM, N0, N1, R2, DIM, N0, __, __, __], // isubst.dim.lt
    [LT, N0, N1, __, __, __, __, __, __, __],
    [ISUBST, DIM, N0, N0, R1, R1, __, __, __, __], // isubst.dim.hit
    [ISUBST, DIM, S0, N1, R2, DIM, N0, __, __, __], // isubst.dim.gt
    [LT, N1, S0, __, __, __, __, __, __, __],
    [ISUBST, NEG, R0, N1, R2, NEG, R3, __, __, __], // isubst.neg
    [ISUBST, R0, N1, R2, R3, __, __, __, __, __],
    [ISUBST, MEET, R0, R1, N2, R3, MEET, R4, R5, __], // isubst.meet
    [ISUBST, R0, N2, R3, R4, __, __, __, __, __],
    [ISUBST, R1, N2, R3, R5, __, __, __, __, __],
    [ISUBST, JOIN, R0, R1, N2, R3, JOIN, R4, R5, __], // isubst.join
    [ISUBST, R0, N2, R3, R4, __, __, __, __, __],
    [ISUBST, R1, N2, R3, R5, __, __, __, __, __],
    // fshift and fsubst.
    [FSHIFT, FF, N0, FF, __, __, __, __, __, __], // fshift.ff
    [FSHIFT, FT, N0, FT, __, __, __, __, __, __], // fshift.ft
    [FSHIFT, AT0, N0, N1, AT0, N2, __, __, __, __], // fshift.0
    [ISHIFT, DIM, N0, N1, DIM, N2, __, __, __, __],
    [FSHIFT, AT1, N0, N1, AT1, N2, __, __, __, __], // fshift.1
    [ISHIFT, DIM, N0, N1, DIM, N2, __, __, __, __],
    [FSHIFT, FAND, F0, F1, N2, FAND, F3, F4, __, __], // fshift.and
    [FSHIFT, F0, N2, F3, __, __, __, __, __, __],
    [FSHIFT, F1, N2, F4, __, __, __, __, __, __],
    [FSHIFT, FOR, F0, F1, N2, FOR, F3, F4, __, __], // fshift.or
    [FSHIFT, F0, N2, F3, __, __, __, __, __, __],
    [FSHIFT, F1, N2, F4, __, __, __, __, __, __],
    [FSUBST, FF, N0, R1, FF, __, __, __, __, __], // fsubst.ff
    [FSUBST, FT, N0, R1, FT, __, __, __, __, __], // fsubst.ft
    [FSUBST, AT0, N0, N1, R2, F3, __, __, __, __], // fsubst.0
    [ISUBST, DIM, N0, N1, R2, R4, __, __, __, __],
    [BOUNDARY, R4, F3, F5, __, __, __, __, __, __],
    [FSUBST, AT1, N0, N1, R2, F3, __, __, __, __], // fsubst.1
    [ISUBST, DIM, N0, N1, R2, R4, __, __, __, __],
    [BOUNDARY, R4, F5, F3, __, __, __, __, __, __],
    [FSUBST, FAND, F0, F1, N2, R3, FAND, F4, F5, __], // fsubst.and
    [FSUBST, F0, N2, R3, F4, __, __, __, __, __],
    [FSUBST, F1, N2, R3, F5, __, __, __, __, __],
    [FSUBST, FOR, F0, F1, N2, R3, FOR, F4, F5, __], // fsubst.or
    [FSUBST, F0, N2, R3, F4, __, __, __, __, __],
    [FSUBST, F1, N2, R3, F5, __, __, __, __, __],
];

// The line in which the row of each kind begins; the last number is that of all lines.
static STARTS: [usize; 76] = [
    0, 1, 3, 4, 6, 7, 8, 10, 12, 15, 18, 19, 20, 22, 24, 27, 30, 31, 33, 34, 36, 37, 39, 41, 44,
    47, 51, 54, 56, 58, 62, 63, 64, 65, 67, 70, 73, 77, 81, 82, 83, 84, 86, 88, 89, 91, 93, 96, 99,
    100, 101, 103, 105, 107, 110, 113, 114, 115, 117, 118, 120, 122, 125, 128, 129, 130, 132, 134,
    137, 140, 141, 142, 145, 148, 151, 154,
];

// Where the row of kind k + 1 begins.
fn start(k: usize) -> usize
    requires { k < 76 }
    ensures { (result ≡ start_at k) × (result ≤ 154) }
{
    STARTS[k]
}

// The lines from number a up to b.
fn between(a: usize, b: usize) -> &'static [[Item; 10]]
    requires { (a ≤ b) × (b ≤ 154) }
    ensures { result.now ≡ part all_lines a b }
{
    &LINES[a..b]
}

// The lines of a kind's rule.
pub fn row(kind: usize) -> &'static [[Item; 10]]
    requires { (0 < kind) × (kind ≤ 75) }
    ensures { result.now ≡ lines_in (row_at (kind - 1)) }
{
    between(start(kind - 1), start(kind))
}
