//! The world of an evaluation: what a compile has made so far, and what each form of the language is given to evaluate
//! the parts that stand one level further in.
#![tactic(auto)]

mod arguments;
mod data;
mod environment;
mod evaluated;
mod forms;
mod goal;
mod heap;
mod here;
mod meaning;
mod owner;
mod owners;
mod read_template;
mod rendered;
mod shapes;
mod world;

pub use environment::Environment;
pub use evaluated::Evaluated;
pub use forms::Forms;
pub use goal::Goal;
pub use heap::Heap;
pub use here::Here;
pub use meaning::Meaning;
pub use owner::Owner;
pub use owners::{INLINE_FILE, MAIN_SOURCE, Owners};
pub use read_template::ReadTemplate;
pub use rendered::Rendered;
pub use shapes::{is_default, is_splat, only};
pub use world::World;
