//! Texts of betting trees, read and printed again.

use gs_bet::{parse_tree, tree_text};
use gs_samples::{SampleError, check_row};
use std::alloc::Global;
use std::test::Fail;

/// Texts of trees.
const TREES: &[&str] = &[
    "=",
    "1[k:!]",
    "1[b4096:!]",
    "1[k:2[k:=],b:!]",
    "1[a:=,b:=,c1:=,d20:=,i4096:2[z:!]]",
    "1[k:1[k:1[k:1[k:1[k:1[k:1[k:1[k:1[k:1[k:1[k:1[k:1[k:1[k:1[k:1[k:=]]]]]]]]]]]]]]]]",
    "1[k:1[k:1[k:1[k:1[k:1[k:1[k:1[k:1[k:1[k:1[k:1[k:1[k:1[k:1[k:1[k:!]]]]]]]]]]]]]]]]",
    "1[a:=,b:=,c:=,d:=,e:=,f:=,g:=,h:=,i:=,j:=,k:=,l:=,m:=,n:=,o:=,p:=,q:=,r:=,s:=,t:=,u:=,v:=,w:=,x:=,y:=,z:=]",
];

/// Returns a tree's text, read and printed again.
fn printed(alloc: Global, text: &str) -> Result<String, Fail> {
    let tree = parse_tree(alloc, text).map_err(SampleError::from)?;
    Ok(tree_text(alloc, &tree)?)
}

#[test]
fn trees_print_their_text(rt: HostRuntime) -> Result<(), Fail> {
    for &text in TREES {
        let again = printed(rt.alloc(), text)?;
        check_row(rt.alloc(), text, again.as_str(), text)?;
    }
    Ok(())
}
