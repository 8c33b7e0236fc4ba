//! Case files, and the machines that run their scripts (`trace_script`).

mod case;
mod growth;
mod machine;
mod settings;
