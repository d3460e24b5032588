mod statuses;
mod words;
