// The words of lists of ports.
ghost use Rattle.std.specs.Prelude.{◌≡◌, ◌++◌, IfOk, OnOk};
ghost use Rattle.model_words.specs.Words.{word_ports};

use model_words::Word;
use netlist_core::{Model, Port};
use std::alloc::{AllocError, Global};

/// Adds the words of some ports.
pub fn push_ports<'a>(words: &mut Vec<Word<'a>>, ports: &'a [Port]) -> Result<(), AllocError>
    ensures { OnOk result (word_ports words.new.items ≡ word_ports words.old.items ++ ports.now) }
{
    for port in ports {
        words.push(Word {
            line: port.line,
            name: port.name.as_slice(),
        })?;
    }
    Ok(())
}

/// Collects the words of some ports.
pub fn port_words<'a>(alloc: Global, ports: &'a [Port]) -> Result<Vec<Word<'a>>, AllocError>
    ensures { IfOk result (λ words. word_ports words.items ≡ ports.now) }
{
    let mut words = Vec::new(alloc);
    push_ports(&mut words, ports)?;
    Ok(words)
}

/// Collects the words of a model's inputs, then those of its clocks.
pub fn input_words<'a>(alloc: Global, model: &'a Model) -> Result<Vec<Word<'a>>, AllocError>
    ensures { IfOk result (λ words. word_ports words.items ≡ model.now.ins ++ model.now.clocks) }
{
    let mut words = port_words(alloc, model.ins.as_slice())?;
    push_ports(&mut words, model.clocks.as_slice())?;
    Ok(words)
}
