ghost use Rattle.std.specs.Prelude.{Some};
ghost use Rattle.fault.specs.Words.{layer_word};

use crate::Layer;
use std::fmt;

/// The layer's word, as people are told it.
impl fmt::Display for Layer {
    ghost output = { λ layer. Some (layer_word layer) };

    fn fmt<W: fmt::Write>(&self, f: &mut fmt::Formatter<W>) -> fmt::Result {
        f.write_str(match self {
            Layer::Avp => "avp",
            Layer::Group => "group",
            Layer::Call => "call",
        })
    }
}
