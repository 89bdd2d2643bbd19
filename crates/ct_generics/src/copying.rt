//! Copies of declarations and of sorts.
ghost use Rattle.std.specs.Prelude.{◌≡◌, IfOk, IfErr};

use crate::error::GenericError;
use crate::generics::Generics;
use crate::heads::{StoredHead, StoredSynonym};
use crate::ids::ExprIds;
use crate::items::Items;
use crate::name::Name;
use crate::names::Names;
use crate::nodes::{ExprId, Expressions};
use crate::sort_table::SortTable;
use std::alloc::Global;

impl Expressions {
    /// An equal table. The only error is `NoMemory`.
    pub fn copy(&self, alloc: Global) -> Result<Expressions, GenericError>
        ensures ok { IfOk result (λ copied. copied ≡ self.now) }
        ensures err { IfErr result (λ e. e ≡ GenericError.NoMemory) }
    {
        let mut copied = Expressions::new(alloc);
        for n in 0..self.len() {
            copied.push(self.node(ExprId(n as u64)))?;
        }
        Ok(copied)
    }
}

impl ExprIds {
    /// Equal numbers. The only error is `NoMemory`.
    pub fn copy(&self, alloc: Global) -> Result<ExprIds, GenericError>
        ensures ok { IfOk result (λ copied. copied ≡ self.now) }
        ensures err { IfErr result (λ e. e ≡ GenericError.NoMemory) }
    {
        let mut copied = ExprIds::new(alloc);
        for i in 0..self.len() {
            copied.push(self.get(i))?;
        }
        Ok(copied)
    }
}

impl Names {
    /// Equal names. The only error is `NoMemory`.
    pub fn copy(&self, alloc: Global) -> Result<Names, GenericError>
        ensures ok { IfOk result (λ copied. copied ≡ self.now) }
        ensures err { IfErr result (λ e. e ≡ GenericError.NoMemory) }
    {
        let mut copied = Names::new(alloc);
        for i in 0..self.len() {
            let name = Name::from_slice(alloc, self.name(i))?;
            copied.push(name)?;
        }
        Ok(copied)
    }
}

impl SortTable {
    /// An equal table. The only error is `NoMemory`.
    pub fn copy(&self, alloc: Global) -> Result<SortTable, GenericError>
        ensures ok { IfOk result (λ copied. copied ≡ self.now) }
        ensures err { IfErr result (λ e. e ≡ GenericError.NoMemory) }
    {
        let expressions = self.expressions.copy(alloc)?;
        let counts = Vec::from_slice(alloc, self.counts.as_slice())?;
        let sorts = self.sorts.copy(alloc)?;
        Ok(SortTable {
            expressions,
            counts: Items::new(counts),
            sorts,
        })
    }
}

impl Generics {
    /// Equal declarations. The only error is `NoMemory`.
    pub fn copy(&self, alloc: Global) -> Result<Generics, GenericError>
        ensures ok { IfOk result (λ copied. copied ≡ self.now) }
        ensures err { IfErr result (λ e. e ≡ GenericError.NoMemory) }
    {
        let heads = copy_heads(alloc, self.heads.as_slice())?;
        let head_names = self.head_names.copy(alloc)?;
        let synonyms = copy_synonyms(alloc, self.synonyms.as_slice())?;
        let synonym_names = self.synonym_names.copy(alloc)?;
        Ok(Generics {
            heads,
            head_names,
            synonyms,
            synonym_names,
        })
    }
}

// Equal sorts and generics.
fn copy_heads(alloc: Global, heads: &[StoredHead]) -> Result<Items<StoredHead>, GenericError>
    ensures ok { IfOk result (λ copied. copied ≡ heads.now) }
    ensures err { IfErr result (λ e. e ≡ GenericError.NoMemory) }
{
    let mut copied = Vec::with_capacity(alloc, heads.len())?;
    for head in heads {
        copied.push(copy_head(alloc, head)?)?;
    }
    Ok(Items::new(copied))
}

// An equal sort or generic.
fn copy_head(alloc: Global, head: &StoredHead) -> Result<StoredHead, GenericError>
    ensures ok { IfOk result (λ copied. copied ≡ head.now) }
    ensures err { IfErr result (λ e. e ≡ GenericError.NoMemory) }
{
    let name = Name::from_slice(alloc, head.name.as_slice())?;
    let template = head.template.copy(alloc)?;
    let ctors = copy_rows(alloc, head.ctors.as_slice())?;
    Ok(StoredHead {
        name,
        kind: head.kind,
        params: head.params,
        template,
        ctors,
    })
}

// Equal rows.
fn copy_rows(alloc: Global, rows: &[Items<ExprId>]) -> Result<Items<Items<ExprId>>, GenericError>
    ensures ok { IfOk result (λ copied. copied ≡ rows.now) }
    ensures err { IfErr result (λ e. e ≡ GenericError.NoMemory) }
{
    let mut copied = Vec::with_capacity(alloc, rows.len())?;
    for row in rows {
        copied.push(copy_row(alloc, row.as_slice())?)?;
    }
    Ok(Items::new(copied))
}

// An equal row.
fn copy_row(alloc: Global, row: &[ExprId]) -> Result<Items<ExprId>, GenericError>
    ensures ok { IfOk result (λ copied. copied ≡ row.now) }
    ensures err { IfErr result (λ e. e ≡ GenericError.NoMemory) }
{
    Ok(Items::new(Vec::from_slice(alloc, row)?))
}

// Equal synonyms.
fn copy_synonyms(
    alloc: Global,
    synonyms: &[StoredSynonym],
) -> Result<Items<StoredSynonym>, GenericError>
    ensures ok { IfOk result (λ copied. copied ≡ synonyms.now) }
    ensures err { IfErr result (λ e. e ≡ GenericError.NoMemory) }
{
    let mut copied = Vec::with_capacity(alloc, synonyms.len())?;
    for synonym in synonyms {
        copied.push(copy_synonym(alloc, synonym)?)?;
    }
    Ok(Items::new(copied))
}

// An equal synonym.
fn copy_synonym(alloc: Global, synonym: &StoredSynonym) -> Result<StoredSynonym, GenericError>
    ensures ok { IfOk result (λ copied. copied ≡ synonym.now) }
    ensures err { IfErr result (λ e. e ≡ GenericError.NoMemory) }
{
    let name = Name::from_slice(alloc, synonym.name.as_slice())?;
    let template = synonym.template.copy(alloc)?;
    Ok(StoredSynonym {
        name,
        params: synonym.params,
        template,
        body: synonym.body,
    })
}
