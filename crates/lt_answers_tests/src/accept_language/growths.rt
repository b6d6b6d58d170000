//! What a call does where a growth of memory is refused.
use super::accept_of;
use lt_range::AcceptFault;
use std::alloc::Global;

/// How many ranges of a header are acceptable, and how many are not.
fn counts(alloc: Global, text: &str) -> Result<(usize, usize), AcceptFault> {
    let accept = accept_of(alloc, text)?;
    Ok((accept.acceptable.len(), accept.not_acceptable.len()))
}

#[test]
fn a_header_is_read(rt: HostRuntime) {
    let text = "a,b;q=0,c-1-2-3-4-5;q=0.5,d;q=0.5,e;q=0,f,g,h,i,j,k,l,m,n,o,p,q,r,s,t,u,v,w";
    assert!(rt; matches!(counts(rt.alloc(), text), Ok((21, 2))));
}
