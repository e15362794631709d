mod auto;
mod class;
mod loose;
mod suspects;
