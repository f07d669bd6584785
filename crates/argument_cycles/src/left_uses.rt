//! Steps whose use stands neither in what is called around it nor among values that are declared: so what is around
//! it stays, whatever its form (Go specification, Calls; Selectors; Short variable declarations).

mod laws;

pub use laws::uses_leave_what_is_around;
