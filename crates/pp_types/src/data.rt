//! `Data`, which counts as `Variant[Undef, Boolean, Integer, String, Array[Data], Hash[String, Data]]`.

/// The types among those of `Data` in which `Data` stands itself: `Array[Data]` and `Hash[String, Data]`.
#[derive(Clone, Copy)]
pub enum DataPart {
    Array,
    Hash,
}
