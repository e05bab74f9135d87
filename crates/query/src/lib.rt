// What is asked of a register: tests joined by "and".

#![tactic(auto)]

ghost use Rattle.std.specs.Prelude.{◌≡◌};
ghost use Rattle.query.specs.Tests.{literal_of, empty_slot};

use limits::MOST_TESTS;

// A comparison of a code with its literal: <, <=, >, >=, =, !=.
#[derive(Clone, Copy)]
pub enum Comparison {
    Less(u64),
    AtMost(u64),
    More(u64),
    AtLeast(u64),
    Equal(u64),
    Differs(u64),
}

// A column, counted from 0, and the comparison that its codes must meet.
#[derive(Clone, Copy)]
pub struct Test {
    pub column: usize,
    pub comparison: Comparison,
}

// The first `count` slots hold the tests; the slots after them mean nothing. No list of its own length: there is no heap.
#[derive(Clone, Copy)]
pub struct Query {
    pub count: usize,
    pub tests: [Test; MOST_TESTS],
}

// The literal that a comparison carries.
pub fn literal_of(comparison: Comparison) -> u64
    ensures { result ≡ literal_of comparison }
{
    match comparison {
        Comparison::Less(literal) => literal,
        Comparison::AtMost(literal) => literal,
        Comparison::More(literal) => literal,
        Comparison::AtLeast(literal) => literal,
        Comparison::Equal(literal) => literal,
        Comparison::Differs(literal) => literal,
    }
}

// A slot that holds no test: column 0, "<", literal 0.
pub fn empty_slot() -> Test
    ensures { result ≡ empty_slot }
{
    Test {
        column: 0,
        comparison: Comparison::Less(0),
    }
}
