//! Arguments in place of parameters, over shared expressions: one step for each expression of the template.
ghost use Rattle.std.specs.Prelude.{◌≡◌, ◌<◌, List, length, Some, slice_get, IfOk, IfErr};
ghost use Rattle.ct_generics.specs.declared.nodes.Node.{Node};
ghost use Rattle.ct_generics.specs.Expression.{Expression, substitute};
ghost use Rattle.ct_generics.specs.Nodes.{Stands, HasPartsBelow, Stay, StandFor, AreWithin, AreImages};

use crate::error::GenericError;
use crate::nodes::{ExprId, Expressions, Node};
use std::alloc::Global;

/// The numbers of all expressions of the template, among these expressions, with arguments for parameters. A parameter
/// for which there is no argument stays. The only error is `NoMemory`.
pub fn substitute(
    alloc: Global,
    target: &mut Expressions,
    template: &Expressions,
    args: &[ExprId],
) -> Result<Vec<ExprId>, GenericError>
    requires within { AreWithin target.old args.now }
    ensures long { IfOk result (λ images. length images.items ≡ length template.now) }
    ensures within { IfOk result (λ images. AreWithin target.new images.items) }
    ensures images { IfOk result (λ images. (es : List Expression) → StandFor target.old args.now es
        → AreImages template.now target.new images.items es) }
    ensures stay { Stay target.old target.new }
    ensures err { IfErr result (λ e. e ≡ GenericError.NoMemory) }
{
    let mut images = Vec::with_capacity(alloc, template.len())?;
    for k in 0..template.len() {
        let image = image(
            target,
            template.node(ExprId(k as u64)),
            args,
            images.as_slice(),
        )?;
        images.push(image)?;
    }
    Ok(images)
}

// The number of the node's expression with the arguments in place of the parameters, where those of the nodes before it
// are known.
fn image(
    target: &mut Expressions,
    node: Node,
    args: &[ExprId],
    images: &[ExprId],
) -> Result<ExprId, GenericError>
    requires args { AreWithin target.old args.now }
    requires images { AreWithin target.old images.now }
    requires below { HasPartsBelow (length images.now) node }
    ensures image { IfOk result (λ n. (template : List Node) (es : List Expression) (e : Expression)
        → StandFor target.old args.now es
        → AreImages template target.old images.now es
        → slice_get template (length images.now) ≡ Some node
        → Stands template (length images.now) e
        → Stands target.new n.0 (substitute es e)) }
    ensures within { IfOk result (λ n. n.0 < length target.new) }
    ensures stay { Stay target.old target.new }
    ensures err { IfErr result (λ e. e ≡ GenericError.NoMemory) }
{
    match node {
        Node::Param(i) => match id_at(args, i) {
            Some(id) => Ok(id),
            None => target.param(i),
        },
        Node::Head(h) => target.head(h),
        Node::Apply(m, k) => {
            let function = image_at(images, m);
            let argument = image_at(images, k);
            target.apply(function, argument)
        }
    }
}

// The number at an index.
fn id_at(ids: &[ExprId], i: u64) -> Option<ExprId>
    ensures value { result ≡ slice_get ids.now i }
{
    ids.get(i as usize).copied()
}

/// The number in place of that of an earlier expression.
pub(crate) fn image_at(images: &[ExprId], m: ExprId) -> ExprId
    requires within { m.0 < length images.now }
    ensures value { slice_get images.now m.0 ≡ Some result }
{
    images[m.0 as usize]
}
