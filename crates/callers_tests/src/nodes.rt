//! The contexts of a new node.

use mate_num::{CONTEXTS_MAX, ContextId};
use node_state::Contexts;
use std::test::Fail;

#[test]
fn all_contexts_are_idle_at_first(rt: HostRuntime) -> Result<(), Fail> {
    let Ok(contexts) = Contexts::new(rt.alloc(), CONTEXTS_MAX) else {
        return Err("no memory".into());
    };
    let mut idle = 0;
    for ctx in 0..16 {
        if contexts.is_idle(ContextId(ctx)) && contexts.seat(ContextId(ctx)).is_none() {
            idle |= 1 << ctx;
        }
    }
    assert_eq!(rt; idle, 65535);
    Ok(())
}
