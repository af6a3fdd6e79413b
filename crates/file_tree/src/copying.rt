//! Nodes in memory of their own.

ghost use Rattle.std.specs.Prelude.{◌≡◌, None, IfOk};
ghost use Rattle.file_tree.specs.Index.{rows_of, published_nodes, unroomed, IsTreeIndex};

use crate::node::KeptNodes;
use crate::preparing::forget;
use crate::ready::Ready;
use bl_syntax::NoMemory;

fn unroomed(ready: &Option<Ready>) -> Option<Ready>
    ensures { result ≡ unroomed ready.now }
{
    match ready {
        Some(Ready::Contents(_, _)) => None,
        Some(ready) => Some(*ready),
        None => None,
    }
}

/// The same nodes, with nothing ready.
pub fn copy_nodes(
    nodes: &KeptNodes,
    next: u64,
    ready: &Option<Ready>,
) -> Result<KeptNodes, NoMemory>
    requires { IsTreeIndex nodes.now.entries next ready.now }
    ensures kept { IfOk result (λ copied. IsTreeIndex copied.entries next None) }
    ensures same { IfOk result (λ copied. rows_of copied.entries ≡ rows_of (published_nodes ready.now nodes.now.entries)) }
{
    let mut copied: KeptNodes = nodes.clone()?;
    forget(&mut copied, next, &unroomed(ready));
    Ok(copied)
}
