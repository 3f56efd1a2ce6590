// What is sought besides the log: any mutant that gives it, or a nonconforming one.
#[derive(Clone, Copy)]
pub enum Goal {
    Any,
    Nonconforming,
}
