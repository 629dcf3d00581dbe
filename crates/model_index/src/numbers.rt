// The models that subckt lines name, by number.
ghost use Rattle.std.specs.Prelude.{◌≡◌, ◌<◌, length, IfSome};
ghost use Rattle.model_index.specs.Numbers.{number_placed};

use crate::named::NamedModels;
use netlist_core::Model;

/// Returns the number of the model that the k-th subckt line of model n names, if there is one.
/// `named` is the index of the models.
pub fn placed(models: &[Model], named: &NamedModels, n: usize, k: usize) -> Option<usize>
    requires { named.now ≡ models.now }
    ensures number { result ≡ number_placed models.now n k }
    ensures within { IfSome result (λ inner. inner < length models.now) }
{
    let line = models.get(n)?.subckts.as_slice().get(k)?;
    named.find(line.model.as_slice())
}
