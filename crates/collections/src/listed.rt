use reply::Spot;
use std::marker::PhantomData;

/// Rows as a value inside another shape: where the reply begins that has them, and how many they are.
#[derive(Clone, Copy)]
pub struct Listed<V> {
    pub spot: Spot,
    pub count: usize,
    pub of: PhantomData<V>,
}
