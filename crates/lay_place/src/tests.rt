mod any_drawing;
mod read_back;
mod skeletons;
mod small_graphs;
mod stereo;
mod thrown;
