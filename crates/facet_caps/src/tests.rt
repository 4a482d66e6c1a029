mod building;
mod erased;
