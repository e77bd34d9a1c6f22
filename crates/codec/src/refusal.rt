/// Why nothing was written. The buffer is then as it was.
#[derive(Clone, Copy)]
pub enum WriteRefusal {
    /// What was to be written has no byte form: a value out of its range, or a list that is not sound.
    NoForm,
    /// The buffer is shorter than the form.
    NoRoom,
}
