//! Variables: parameters, bindings of `let`, and variables of patterns.
ghost use Rattle.std.specs.Prelude.{◌≡◌, map, IfOk, IfErr};
ghost use Rattle.ct_names.specs.Bounds.{variable_of, variable_of_param};

use crate::error::CheckError;
use ct_sexpr::Bytes;
use ct_sorts::SortId;
use std::alloc::Global;

/// A parameter of a definition.
#[derive(Debug, Drop)]
pub struct Param {
    /// Its name, without the `|` that may surround it in a script.
    pub name: Bytes,
    /// Its sort.
    pub sort: SortId,
}

/// A variable as it is bound.
#[derive(Clone, Copy)]
pub struct BoundVariable<'e> {
    /// Its name, none where `_` was written.
    pub name: Option<&'e [u8]>,
    /// Its sort.
    pub sort: SortId,
}

/// A variable that was found.
#[derive(Clone, Copy)]
pub struct Found {
    /// How many variables were bound after it.
    pub number: u64,
    /// Its sort.
    pub sort: SortId,
}

/// The parameters as variables, in order. It fails only where memory runs out.
pub fn parameters<'e>(
    alloc: Global,
    params: &'e [Param],
) -> Result<Vec<BoundVariable<'e>>, CheckError>
    ensures ok { IfOk result (λ variables. map variable_of variables.items
        ≡ map variable_of_param params.now) }
    ensures err { IfErr result (λ e. e ≡ CheckError.NoMemory) }
{
    let mut variables = Vec::with_capacity(alloc, params.len())?;
    for param in params {
        variables.push(BoundVariable {
            name: Some(param.name.as_slice()),
            sort: param.sort,
        })?;
    }
    Ok(variables)
}
