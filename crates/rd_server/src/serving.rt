//! Serving: workers with a seat, a link and a clock each, all over one directory.
pub(crate) mod calls;
pub(crate) mod conclusions;
pub(crate) mod contexts;
pub(crate) mod ends;
pub(crate) mod plans;
pub(crate) mod sends;
pub(crate) mod serve_status;
pub(crate) mod served;
pub(crate) mod servers;
pub(crate) mod turns;
pub(crate) mod workers;
