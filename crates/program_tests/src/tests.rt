mod around;
mod busy;
mod edge;
mod faults;
mod sessions;
