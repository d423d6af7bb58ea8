//! The outside in memory, whose calls are cut short and fail as they are told to, for tests and cases. All sizes and
//! counts are in bytes or calls. Own, as a whole.
#![tactic(auto)]

mod mem_device;
mod mem_input;
mod mem_sink;
mod mem_store;
mod script;
mod sure_input;
mod sure_store;

pub use mem_device::MemDevice;
pub use mem_input::MemInput;
pub use mem_sink::MemSink;
pub use mem_store::MemStore;
pub use script::Script;
pub use sure_input::SureInput;
pub use sure_store::SureStore;
