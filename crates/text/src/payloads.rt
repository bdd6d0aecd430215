// The two payloads of a body, and the end bit of a string reader where one is lent.
ghost use Rattle.std.specs.Prelude.{◌≡◌};
ghost use Rattle.bitcursor.specs.Inputs.{Payloads as Both};
ghost use Rattle.text.specs.Answers.{payloads_to};

use bitcursor::Payload;
use std::marker::Model;

#[derive(Drop)]
pub struct Payloads<'a> {
    pub main: Payload<'a>,
    pub string: Payload<'a>,
    pub reader: Option<usize>,
}

impl<'a> Model for Payloads<'a> {
    ghost Value = { Both };

    ghost view = { λ p. payloads_to p.main p.string p.reader };
}
