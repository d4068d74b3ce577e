//! Identities, ranges and signs of integer polynomials. Each function's contract is a theorem; the proofs are for other crates to use.
#![tactic(auto)]

ghost use Rattle.zring.specs.Statements.{RingLaws, NormalForm, Normaliser, FitsCasts, FitsHeld, InRange, AtCorners, ThreeTerms};

/// whole numbers are a ring
pub fn ring_laws_stands()
    ensures { RingLaws }
{}

/// normal forms keep values, and decide identities
pub fn normaliser_stands()
    ensures normal { NormalForm }
    ensures identities { Normaliser }
{}

/// ranges decide where the machine computes without loss
pub fn fits_stands()
    ensures casts { FitsCasts }
    ensures held { FitsHeld }
    ensures range { InRange }
{}

/// the corners of a box bound a polynomial
pub fn at_corners_stands()
    ensures { AtCorners }
{}

/// signs of a relation with three terms
pub fn three_terms_stands()
    ensures { ThreeTerms }
{}
