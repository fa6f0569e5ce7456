// A refusal as users see it: a number, a place and the layer that raised it.
#![tactic(auto)]

ghost use Rattle.std.specs.Prelude.{◌≡◌, Some};
ghost use Rattle.refusal.specs.Shown.{layer_word, refusal, refusal_line};

use std::fmt;

// Where a refusal was raised.
#[derive(Clone, Copy, PartialEq, Eq, Debug)]
pub enum Layer {
    Bytes,
    Plan,
    Plant,
    Draft,
    Rules,
    Log,
}

impl Layer {
    // The word for the layer, as it is printed.
    pub fn word(self) -> &'static str
        ensures { result.now ≡ layer_word self }
    {
        match self {
            Layer::Bytes => "bytes",
            Layer::Plan => "plan",
            Layer::Plant => "plant",
            Layer::Draft => "draft",
            Layer::Rules => "rules",
            Layer::Log => "log",
        }
    }
}

impl fmt::Display for Layer {
    ghost output = { λ l. Some (layer_word l) };

    fn fmt<W: fmt::Write>(&self, f: &mut fmt::Formatter<W>) -> fmt::Result {
        let layer = *self;
        let word = layer.word();
        write!(f, "{word}")
    }
}

// Why a call was turned away: the numbers and places are listed in docs/refusals.md.
// The number is a number, since users see it and look it up; in code each layer has an enum of its faults.
#[derive(Clone, Copy, PartialEq, Eq, Debug)]
pub struct Refusal {
    pub number: u32,
    pub place: usize,
    pub layer: Layer,
}

impl Refusal {
    // The refusal with this number and place in this layer.
    pub fn new(number: u32, place: usize, layer: Layer) -> Refusal
        ensures { result ≡ refusal number place layer }
    {
        Refusal {
            number,
            place,
            layer,
        }
    }
}

impl fmt::Display for Refusal {
    ghost output = { λ r. Some (refusal_line r) };

    fn fmt<W: fmt::Write>(&self, f: &mut fmt::Formatter<W>) -> fmt::Result {
        let number = self.number;
        let place = self.place;
        let layer = self.layer;
        write!(f, "refused {number} {place} {layer}")
    }
}
