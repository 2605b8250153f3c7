use jop_outside::{Clock, Entropy, Sink, Source};
use std::marker::Model;

/// The streams of a run, its clock and its random source.
#[derive(Drop)]
pub struct Streams<I: Source, O: Sink, E: Sink, C: Clock, N: Entropy> {
    pub input: I,
    pub out: O,
    pub err: E,
    pub clock: C,
    pub entropy: N,
}

impl<I: Source, O: Sink, E: Sink, C: Clock, N: Entropy> Model for Streams<I, O, E, C, N> {
    ghost use Rattle.jop_start.specs.Starting.{StreamsNow};

    ghost Value = { StreamsNow };

    ghost view = { λ s. record {
      input = I.state s.input;
      out = O.state s.out;
      err = E.state s.err;
      clock = C.state s.clock;
      entropy = N.state s.entropy;
    } };
}
