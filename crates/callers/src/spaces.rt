//! The configurations of a space.
ghost use Rattle.std.specs.Prelude.{◌≡◌, None, IfOk};
ghost use Rattle.sweep_core.specs.Table.{table};

use std::alloc::{AllocError, Global};
use sweep_core::{Config, Space};

/// All configurations of a space, in a list: those of its table.
pub fn all_configs(alloc: Global, space: &Space) -> Result<Vec<Config>, AllocError>
    ensures table { IfOk result (λ configs. configs.items ≡ table space.now None) }
{
    space.configs(None).collect(alloc)
}
