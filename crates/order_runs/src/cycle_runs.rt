//! What a run from files that read as a module keeps of the cycles of marked functions (Go
//! specification, Import declarations; Calls; Program initialization and execution).

mod bodies_there;
mod found_uses;
mod import_cycles;
mod kept_imports;
mod laws;
mod led_imports;
mod literal_calls;
mod order_cycles;
mod ordered_steps;
mod step_cycles;

pub use bodies_there::bodies_call_alike_there;
pub use found_uses::steps_use_no_recursive;
pub use import_cycles::{
    imports_by_their_names, other_imports_call_alike, other_imports_keep_cycles,
};
pub use kept_imports::{files_are_settled, names_are_kept};
pub use laws::{packages_stay_linked, runs_keep_cycles};
pub use led_imports::{added_imports_are_led, homes_are_led};
pub use literal_calls::literals_call_through;
pub use order_cycles::{linked_steps_keep_cycles, orders_declare_the_same, steps_add_new_names};
pub use ordered_steps::{orders_are_ranked, read_modules_are_ordered, steps_keep_orders};
pub use step_cycles::{calls_give_way, steps_keep_cycles, steps_read_calls_alike};
